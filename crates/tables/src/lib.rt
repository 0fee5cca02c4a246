// Entries of a sheet's tables, stored and copied (SPEC 2.1, 2.3).
// The room takes a table with values for it, or with another table and how many rows and kinds are used, and gives the table with those entries; it
// promises every entry, new or kept, by the model's `filled`. Which sheet it is plays no part; that a copy of tables that hold a sheet is the
// model's table of it is a law (proofs/SheetCopied.antt).
#![tactic(auto)]

ghost use Rattle.std.specs.Prelude.{◌≡◌, ◌+◌, ◌*◌, ◌<◌, ◌≤◌, length, ltb};
ghost use Rattle.tables.specs.Entries.{stored, copied, in_rows, in_blocks};

// Stores the values, at most four, at a place of a table.
// Kept: a loop by index of four turns, whatever the number of values: one over the values alone becomes a call of `memcpy`, with which `read` takes 1.09 to
// 1.26 of the time that it takes with this, and `plan` 1.04 to 1.15 (docs/DECISIONS.md, "The call `read`").
#[tactic(auto, using(crate::proofs::Entries::first_none, crate::proofs::Entries::first_more))]
pub fn store(values: &[u32], table: &mut [u32], at: usize)
    requires count_bound { length values.now ≤ 4 }
    requires values_in_bounds { at + length values.now ≤ length table.old }
    ensures { table.new ≡ stored values.now 0 (length values.now) at table.old }
{
    for k in 0..4 {
        if let Some(&value) = values.get(k) {
            table[at + k] = value;
        }
    }
}

// Copies the whole source to the front of a table.
#[tactic(auto, using(crate::proofs::Entries::front_copied))]
pub fn copy_front(source: &[u32], table: &mut [u32])
    requires { length source.now ≤ length table.old }
    ensures { table.new ≡ copied (λ x. ltb x (length source.now)) source.now table.old }
{
    table[..source.len()].copy_from_slice(source);
}

// Copies, of each row of four from the first one on, as many entries as there are kinds.
#[tactic(auto, using(crate::proofs::Entries::stored_slice, crate::proofs::Entries::rows_none, crate::proofs::Entries::rows_more))]
pub fn copy_rows(source: &[u32], first: usize, rows: usize, kinds: usize, table: &mut [u32])
    requires { (kinds ≤ 4) × (4 * (first + rows) ≤ length source.now) × (4 * (first + rows) ≤ length table.old) }
    ensures { table.new ≡ copied (in_rows first rows kinds) source.now table.old }
{
    for r in 0..rows {
        let at = 4 * (first + r);
        store(&source[at..at + kinds], &mut *table, at);
    }
}

// Copies, of each block of four rows, as many rows as there are kinds.
#[tactic(auto, using(crate::proofs::Entries::blocks_none, crate::proofs::Entries::blocks_more))]
pub fn copy_blocks(source: &[u32], blocks: usize, kinds: usize, table: &mut [u32])
    requires { (kinds ≤ 4) × (16 * blocks ≤ length source.now) × (16 * blocks ≤ length table.old) }
    ensures { table.new ≡ copied (in_blocks blocks kinds) source.now table.old }
{
    // With four kinds every entry of a block is used.
    if kinds == 4 {
        copy_front(&source[..16 * blocks], table);
        return;
    }
    for e in 0..blocks {
        copy_rows(source, 4 * e, kinds, kinds, &mut *table);
    }
}

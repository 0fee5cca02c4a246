// Rows of numbers as records: the thin layer between the plain tables and the lent list (SPEC 12.7).
// `fill` takes the list and the rows, and stores them from the front; the promise is the model's `over`.
ghost use Rattle.std.specs.Prelude.{◌≡◌, ◌/◌, ◌≤◌, length};
ghost use Rattle.model.specs.Tables.{over};
ghost use Rattle.plan_call.specs.Answers.{copy_at, copies_of};

use model::Copy;

// The copy that a row is.
// Kept: no `From`, since that of an array for `Copy` can only stand in `model`, which has no function.
#[tactic(auto, unfolding(plan_call::specs::Answers::copy_at))]
fn copy_at(row: &[u32; 4]) -> Copy
    ensures { result ≡ copy_at row.now 0 }
{
    let [stage, kind, board, start] = *row;
    Copy {
        stage,
        kind,
        board,
        start,
    }
}

// The copies that the rows are go to the list; the records after them stay.
// Kept: a loop by index, since of what one over `list.iter_mut().zip(..)` writes nothing is known.
#[tactic(auto, using(plan_call::proofs::CopyRows::copy_alone, crate::proofs::list::Filled::filled_next), unfolding(plan_call::specs::Answers::copies_of))]
pub fn fill(list: &mut [Copy], rows: &[u32])
    requires { length rows.now / 4 ≤ length list.old }
    ensures { list.new ≡ over (copies_of rows.now (length rows.now / 4)) list.old }
{
    for (c, row) in rows.as_chunks::<4>().0.iter().enumerate() {
        list[c] = copy_at(row);
    }
}

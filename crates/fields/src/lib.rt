// The fields of a sheet (SPEC 1.1), or of another text of that form.
// It takes the bytes, a place and the byte that has to end the field there, and gives where the field begins and ends and the place after it, or that it is
// refused; then the field's bytes, as the part of the sheet that they are. The promises are equations, with `field_step` and with that part.
// The work is `field_at`'s, on the plain slice and the place; the methods of `SheetReader` are thin (SPEC 12.4).
#![tactic(auto)]

ghost use Rattle.std.specs.Prelude.{◌≡◌, ◌+◌, ◌-◌, ◌≤◌, length, take, drop};
ghost use Rattle.fields.specs.Fields.{field_length, field_step};

// SPEC 12.4: the lent text, and a place in it.
#[derive(Clone, Copy)]
pub struct SheetReader<'a> {
    pub sheet: &'a [u8],
    pub at: usize,
}

// SPEC 12.2: what a step of reading gives where it refuses nothing: a field, from `from` up to `to`, with the next place.
#[derive(Clone, Copy, Debug, PartialEq, Eq, Hash)]
pub struct FieldEnds {
    pub from: usize,
    pub to: usize,
    pub next: usize,
}

// Where the field that begins at a place ends: at the next comma or byte 10, or at the end of the sheet.
fn field_end(sheet: &[u8], at: usize) -> usize
    requires { at ≤ length sheet.now }
    ensures { result ≡ at + field_length (drop at sheet.now) }
{
    let rest = &sheet[at..];
    at + rest
        .iter()
        .position(|&b| b == b',' || b == b'\n')
        .unwrap_or(rest.len())
}

// The field at a place, which the byte `stop` has to end.
#[tactic(auto, unfolding(crate::specs::Fields::field_step))]
pub fn field_at(sheet: &[u8], at: usize, stop: u8) -> Option<FieldEnds>
    ensures { result ≡ field_step sheet.now at stop }
{
    if at > sheet.len() {
        return None;
    }
    let to = field_end(sheet, at);
    if to >= sheet.len() || sheet[to] != stop {
        return None;
    }
    Some(FieldEnds {
        from: at,
        to,
        next: to + 1,
    })
}

impl<'a> SheetReader<'a> {
    // The reader of a sheet, at a place.
    pub fn open(sheet: &'a [u8], at: usize) -> Self
        ensures { (result.sheet ≡ sheet.entry) × (result.at ≡ at) }
    {
        SheetReader { sheet, at }
    }

    // The field at the reader's place, which the byte `stop` has to end.
    pub fn next_field(self, stop: u8) -> Option<FieldEnds>
        ensures { result ≡ field_step self.entry.sheet.now self.entry.at stop }
    {
        field_at(self.sheet, self.at, stop)
    }
}

// SPEC 12.3: the bytes of a field, as the part of the text that they are.
pub fn field(sheet: &[u8], from: usize, to: usize) -> &[u8]
    requires { (from ≤ to) × (to ≤ length sheet.now) }
    ensures { result.now ≡ take (to - from) (drop from sheet.now) }
{
    &sheet[from..to]
}

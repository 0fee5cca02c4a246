// What the program `plan` prints for a sheet: its plan or one refusal line (SPEC 9.1).
// It takes the bytes that were read and an output that is long enough for every plan, and hands back the part of it that is to be printed; the
// promise is the model's `output`.
#![tactic(auto)]

ghost use Rattle.std.specs.Prelude.{◌≡◌, ◌≤◌, length, take};
ghost use Rattle.model.specs.PlanText.{output};

use abi::faults::FaultNumbers;

// The plan or the refusal line of a sheet: the part of the output that has it.
pub fn answer<'a>(sheet: &[u8], out: &'a mut [u8]) -> &'a mut [u8]
    requires { 32796 ≤ length out.old }
    ensures { result.now ≡ output sheet.now }
{
    let printed = write_answer(sheet, &mut *out);
    &mut out[..printed]
}

// Writes the plan of a sheet, or its refusal line, and gives how many bytes that is. Tables and output are long enough for every sheet, so that it is
// never refusal 1 or 8.
#[tactic(auto, using(crate::proofs::Shown::refusal_short))]
fn write_answer(sheet: &[u8], out: &mut [u8]) -> usize
    requires { 32796 ≤ length out.old }
    ensures { (result ≤ length out.new) × (take result out.new ≡ output sheet.now) }
{
    let mut durations = [0u32; model::DURATIONS_LEN];
    let mut ends = [0u32; model::ENDS_LEN];
    let mut waits = [0u32; model::WAITS_LEN];
    let mut starts = [0u32; model::STARTS_LEN];
    let mut rows = [0u32; 4 * model::COPIES_LEN];
    let done = plan_call::plan_tables(
        sheet,
        &mut durations,
        &mut ends,
        &mut waits,
        &mut starts,
        model::COPIES_LEN,
        &mut rows,
        &mut *out,
    );
    match done.answer {
        Ok(totals) => totals.printed,
        Err(fault) => {
            let FaultNumbers { number, line } = fault.into();
            plan_text::refusal::write_refusal(number, line, out)
        }
    }
}

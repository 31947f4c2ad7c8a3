// Document 01, "Cases": the sheet of a file's plain run, as bytes.
#![tactic(auto)]

ghost use Rattle.std.specs.Prelude.{◌≤◌, length};
ghost use Rattle.buffers.specs.Write.{Writes};
ghost use Rattle.sheet.specs.Sheet.{longest_sheet};
ghost use Rattle.sheet_file.specs.Report.{printed};

// What is printed of a file's plain run with a budget, at the front of out; how many bytes. A buffer that is too short stays, and the answer is 0.
pub fn plain_sheet(file: &[u8], budget: u64, out: &mut [u8]) -> usize
    ensures writes { Writes out.old out.new result (printed budget file.now) }
    ensures file_len_bound { length (printed budget file.now) ≤ longest_sheet }
{
    match reader_file::read_file(file) {
        Ok(m) => {
            let run = plain_core::plain_run(m, budget);
            sheet_print::sheet(m.v, m.t, run, out)
        }
        Err(r) => sheet_print::refusal(u8::from(r), out),
    }
}

// Document 02, slip 2: a file read and written again, as the program `rewrite` prints it.
#![tactic(auto)]

ghost use Rattle.buffers.specs.Write.{Writes};
ghost use Rattle.writer_print.specs.Again.{again, Same};

// The file written again at the front of out, or the line of its refusal; how many bytes. A buffer that is too short stays, and the
// answer is 0.
pub fn rewrite_text(file: &[u8], out: &mut [u8]) -> usize
    ensures text { Writes out.old out.new result (again file.now) }
    ensures same { Same file.now }
{
    match reader_file::read_file(file) {
        Ok(m) => buffers::written_length(writer_file::write(m, out)),
        Err(r) => sheet_print::refusal(u8::from(r), out),
    }
}

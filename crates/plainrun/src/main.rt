// Document 01, "Cases": "The program reads the file on standard input, at most its first 65,536 bytes, and prints exactly" the sheet.
#![tactic(auto)]

ghost use Rattle.io.specs.Counts.{IsPrefixLen};
ghost use Rattle.buffers.specs.Write.{Writes};
ghost use Rattle.sheet_file.specs.Report.{printed};
ghost use Rattle.plainrun.specs.Program.{budget};

// Standard input and output.
const STDIN: i32 = 0;

const STDOUT: i32 = 1;

// What the program prints of a file, at the front of out; how many bytes. Only reading and writing are outside of this.
fn answer(file: &[u8], out: &mut [u8]) -> usize
    ensures writes { Writes out.old out.new result (printed budget file.now) }
    ensures prefix_len { IsPrefixLen result out.new }
{
    sheet_file::plain_sheet(file, 1000000, out)
}

// One read of all, one write of all.
fn main() {
    let mut file = io::large_buffer();
    let n = io::read_full(STDIN, &mut file);
    let mut out = [0u8; 8192];
    let m = answer(&file[..n], &mut out);
    io::write_all(STDOUT, &out[..m]);
}

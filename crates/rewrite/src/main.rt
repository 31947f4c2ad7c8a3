// Document 02, slip 2: a model file on standard input, at most its first 65,536 bytes, written again on standard output.
#![tactic(auto)]

ghost use Rattle.io.specs.Counts.{IsPrefixLen};
ghost use Rattle.buffers.specs.Write.{Writes};
ghost use Rattle.writer_print.specs.Again.{again};

// Standard input and output.
const STDIN: i32 = 0;

const STDOUT: i32 = 1;

// What the program prints of a file, at the front of out; how many bytes. Only reading and writing are outside of this.
fn answer(file: &[u8], out: &mut [u8]) -> usize
    ensures writes { Writes out.old out.new result (again file.now) }
    ensures prefix_len { IsPrefixLen result out.new }
{
    writer_print::rewrite_text(file, out)
}

// One read of all, one write of all. No file that is accepted has more than 13,934 bytes.
fn main() {
    let mut file = io::large_buffer();
    let n = io::read_full(STDIN, &mut file);
    let mut out = [0u8; 16384];
    let m = answer(&file[..n], &mut out);
    io::write_all(STDOUT, &out[..m]);
}

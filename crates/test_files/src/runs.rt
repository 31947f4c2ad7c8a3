// Stored runs of `replayrun`: a name, a model file, and a count of arguments with the arguments. Of each the name is written, and
// what the program prints.
ghost use Rattle.std.specs.Prelude.{◌≤◌, ◌≡◌, length, IfOk};
ghost use Rattle.io.specs.Counts.{IsPrefixLen};

use std::io::{Read, Result};

// The lines of a model file and calls, each a kind and a label, at the front of out; how many bytes.
fn answer(file: &[u8], kinds: &[u8], labels: &[u64], out: &mut [u8]) -> usize
    ensures { IsPrefixLen result out.new }
{
    transcript_print::replay_text(file, kinds, labels, out)
}

// The kinds and labels of the next arguments, as far as there is room; how many. The one error is the reader's own: the buffers keep their lengths.
fn read_calls<F: Read>(runs: &mut F, kinds: &mut [u8], labels: &mut [u64]) -> Result<usize>
    requires { length labels.old ≤ length kinds.old }
    ensures prefix_len { IfOk result (λ n. IsPrefixLen n kinds.new) }
    ensures prefix_len_2 { IfOk result (λ n. IsPrefixLen n labels.new) }
    ensures kept { length kinds.new ≡ length kinds.old }
    ensures kept_labels { length labels.new ≡ length labels.old }
{
    let room = labels.len();
    let n = parts::read_length(runs)?.unwrap_or(room).min(room);
    let mut text = [0u8; 21];
    for i in 0..n {
        let k = parts::next_part(runs, &mut text)?;
        kinds[i] = transcript_print::kind_of(&text[..k]);
        labels[i] = transcript_print::label_of(&text[..k]);
    }
    Ok(n)
}

// Reads the next stored run, and answers whether there was one. One call more than 1,024 tells that there are too many.
fn next_run<R: Print, F: Read>(rt: &R, runs: &mut F) -> Result<bool> {
    let mut name = [0u8; 4096];
    let n = parts::next_part(runs, &mut name)?;
    if n == 0 {
        return Ok(false);
    }
    rt.write_all(&name[..n])?;
    let mut file = [0u8; 65536];
    let m = parts::next_part(runs, &mut file)?;
    let mut kinds = [0u8; 1025];
    let mut labels = [0u64; 1025];
    let k = read_calls(runs, &mut kinds, &mut labels)?;
    let mut out = [0u8; 131072];
    let b = answer(&file[..m], &kinds[..k], &labels[..k], &mut out);
    rt.write_all(&out[..b])?;
    Ok(true)
}

pub fn all_runs<R: Print, F: Read>(rt: &R, runs: &mut F) -> Result<()> {
    for _ in 0..u64::MAX {
        if !next_run(rt, runs)? {
            return Ok(());
        }
    }
    Ok(())
}

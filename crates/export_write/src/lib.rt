// Document 02, slip 2, for C and Rust: a file's model as numbers, and the file of a model held so.
#![tactic(auto)]

ghost use Rattle.export_write.specs.Call.{Models, Files};

// A file's model as numbers at the front of the slice: the number, 0 where it is there.
pub fn model_into(file: &[u8], numbers: &mut [u32]) -> u8
    ensures { Models file.now numbers.old result numbers.new }
{
    let m = match reader_file::read_file(file) {
        Ok(m) => m,
        Err(r) => {
            let refused = u8::from(r);
            return refused;
        }
    };
    if export_numbers::numbers_into(m, numbers) == 0 {
        return 16;
    }
    0
}

// The file of a model held as numbers: the number, 0 where it is written, and then its length in the first place.
pub fn write_into(numbers: &[u32], out: &mut [u8], length: &mut [u64]) -> u8
    ensures { Files numbers.now out.old length.old result out.new length.new }
{
    if length.len() == 0 {
        return 11;
    }
    if let Err(r) = export_hold::held_number(numbers) {
        let number = u8::from(r);
        return number;
    }
    let m = export_hold::model_held(numbers);
    let written = writer_file::write(m, out);
    let refusal = buffers::written_number(written);
    if refusal == 0 {
        length[0] = buffers::written_length(written) as u64;
    }
    refusal
}

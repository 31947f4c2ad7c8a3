// Document 01, "Model file" and "Tables": a file's model with its tables.
#![tactic(auto)]

ghost use Rattle.std.specs.Prelude.{◌≡◌, length};
ghost use Rattle.reader.specs.Read.{read_of};
ghost use Rattle.reader_load.specs.Load.{load_of, load_buffer, load_by_rows};

use model::Model;
use refusal::Refusal;

// The model that the bytes say, and its distances in the words: the reader's refusals, then that of a short buffer.
// On a refusal no word is written. Its marks are `tables_conflict::conflict_marks` of the model.
pub fn load(bytes: &[u8], words: &mut [u64]) -> Result<Model, Refusal>
    ensures loaded { read_of result ≡ load_of bytes.now words.old }
    ensures buffer { words.new ≡ load_buffer bytes.now words.old }
{
    let m = reader_file::read_file(bytes)?;
    tables_distance::distances(m, words)?;
    Ok(m)
}

// Document 02, slip 6, the entry by rows: the reader's refusals, then 16 below 64 words, of which none is read or written.
pub fn load_by_rows(bytes: &[u8], words: &[u64]) -> Result<Model, Refusal>
    ensures { read_of result ≡ load_by_rows bytes.now (length words.now) }
{
    let said = reader_file::read_file(bytes)?;
    if words.len() < 64 {
        return Err(Refusal::ShortTable);
    }
    Ok(said)
}

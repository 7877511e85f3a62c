// The codestream in a file.
ghost use Rattle.std.specs.Prelude.{◌≡◌};
ghost use Rattle.types.specs.Refusals.{answer_number};
ghost use Rattle.reader.specs.Search.{found_in};
ghost use Rattle.host.specs.Search.{found_start, found_length};

use reader::search::Codestream;
use types::Refusal;

fn tell_found(answer: Result<Codestream, Refusal>, start: &mut u64, length: &mut u64) -> u32
    ensures value { result ≡ answer_number answer }
    ensures start_after { start.new ≡ found_start answer }
    ensures length_after { length.new ≡ found_length answer length.old }
{
    match answer {
        Ok(found) => {
            *start = found.start.0;
            *length = found.length;
            0
        }
        Err(refusal) => {
            *start = refusal.place;
            refusal.number()
        }
    }
}

// `start`: where the codestream starts in the file, or a refusal's place; `length`: its length.
pub fn winterhasp_find_codestream(file: &[u8], start: &mut u64, length: &mut u64) -> u32
    ensures value { result ≡ answer_number (found_in file.now) }
    ensures start_after { start.new ≡ found_start (found_in file.now) }
    ensures length_after { length.new ≡ found_length (found_in file.now) length.old }
{
    let answer = reader::search::find_codestream(file);
    tell_found(answer, start, length)
}

// The codestream in a file.
ghost use Rattle.std.specs.Prelude.{◌≡◌};
ghost use Rattle.types.specs.Refusals.{answer_number};
ghost use Rattle.reader.specs.Search.{found_in};
ghost use Rattle.host.specs.Search.{found_start, found_length};

// `start`: where the codestream starts in the file, or a refusal's place; `length`: its length.
#[unsafe(no_mangle)]
pub extern "C" fn winterhasp_find_codestream(file: &[u8], start: &mut u64, length: &mut u64) -> u32
    ensures value { result ≡ answer_number (found_in file.now) }
    ensures start_after { start.new ≡ found_start (found_in file.now) }
    ensures length_after { length.new ≡ found_length (found_in file.now) length.old }
{
    host::search::winterhasp_find_codestream(file, start, length)
}

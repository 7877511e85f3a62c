// What only the runs beside the original call: thin calls on numbers and byte slices, which crate probe_c exports for C. Each
// answers 0 where it accepts, or the refusal's number with its place in the first number lent, unless it says otherwise. What a
// host calls is in crate host: neither uses the other.
#![tactic(auto)]

pub mod by_tile;
pub mod main_header;
pub mod order;
pub mod own;
pub mod scan;

ghost use Rattle.std.specs.Prelude.{◌≡◌, length};
ghost use Rattle.parts.specs.Split.{part_number, part_out};
ghost use Rattle.reader.specs.Search.{content_of};

// The codestream itself, empty where the search refuses. `value`: its length, or with 17 the size needed.
pub fn winterhasp_codestream_of(file: &[u8], out: &mut [u8], value: &mut u64) -> u32
    ensures value { result ≡ part_number (content_of file.now) (length out.old) }
    ensures value_after { value.new ≡ length (content_of file.now) }
    ensures out_after { out.new ≡ part_out (content_of file.now) out.old }
{
    let part = reader::search::codestream_of(file);
    parts::split::tell(part, out, value)
}

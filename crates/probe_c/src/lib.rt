// What only the runs beside the original call, exported for C. Each function is the one of that name in crate probe, and promises
// the same. The archive of crate host_c is linked into the same program: neither uses the other.
#![tactic(auto)]

pub mod by_tile;
pub mod main_header;
pub mod order;
pub mod scan;

ghost use Rattle.std.specs.Prelude.{◌≡◌, length};
ghost use Rattle.parts.specs.Split.{part_number, part_out};
ghost use Rattle.reader.specs.Search.{content_of};

// The codestream itself, empty where the search refuses. `value`: its length, or with 17 the size needed.
#[unsafe(no_mangle)]
pub extern "C" fn winterhasp_codestream_of(file: &[u8], out: &mut [u8], value: &mut u64) -> u32
    ensures value { result ≡ part_number (content_of file.now) (length out.old) }
    ensures value_after { value.new ≡ length (content_of file.now) }
    ensures out_after { out.new ≡ part_out (content_of file.now) out.old }
{
    probe::winterhasp_codestream_of(file, out, value)
}

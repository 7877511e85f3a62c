// The image's size and its samples.
ghost use Rattle.std.specs.Prelude.{◌≡◌, cond, not, eqb};
ghost use Rattle.types.specs.Refusals.{answer_number};
ghost use Rattle.reader.specs.Siz.{siz_read, sample_type, sample_number};
ghost use Rattle.host.specs.Siz.{siz_width, siz_height, siz_components, siz_bits, siz_signed};

use reader::siz::SizInfo;
use types::Refusal;

pub fn sign(signed: bool) -> u64
    ensures { result ≡ cond signed 1 0 }
{
    u64::from(signed)
}

fn tell_siz(
    answer: Result<SizInfo, Refusal>,
    width: &mut u64,
    height: &mut u64,
    components: &mut u64,
    bits: &mut u64,
    signed: &mut u64,
) -> u32
    ensures value { result ≡ answer_number answer }
    ensures width_after { width.new ≡ siz_width answer }
    ensures height_after { height.new ≡ siz_height answer height.old }
    ensures components_after { components.new ≡ siz_components answer components.old }
    ensures bits_after { bits.new ≡ siz_bits answer bits.old }
    ensures signed_after { signed.new ≡ siz_signed answer signed.old }
{
    match answer {
        Ok(info) => {
            *width = info.width as u64;
            *height = info.height as u64;
            *components = info.num_components as u64;
            *bits = info.bits_per_component as u64;
            *signed = sign(info.is_signed);
            0
        }
        Err(refusal) => {
            *width = refusal.place;
            refusal.number()
        }
    }
}

// `width`: the image's width, or a refusal's place; `height`, `components`, `bits` per component, and in `signed` 1 for a sign.
pub fn winterhasp_parse_siz_marker(
    codestream: &[u8],
    width: &mut u64,
    height: &mut u64,
    components: &mut u64,
    bits: &mut u64,
    signed: &mut u64,
) -> u32
    ensures value { result ≡ answer_number (siz_read codestream.now) }
    ensures width_after { width.new ≡ siz_width (siz_read codestream.now) }
    ensures height_after { height.new ≡ siz_height (siz_read codestream.now) height.old }
    ensures components_after { components.new ≡ siz_components (siz_read codestream.now) components.old }
    ensures bits_after { bits.new ≡ siz_bits (siz_read codestream.now) bits.old }
    ensures signed_after { signed.new ≡ siz_signed (siz_read codestream.now) signed.old }
{
    let answer = reader::siz::parse_siz_marker(codestream);
    tell_siz(answer, width, height, components, bits, signed)
}

// The type of a sample of so many bits, with a sign where `signed` is not 0. It never refuses: 0 is u8, 1 i8, 2 u16, 3 i16, 4 u32,
// 5 i32.
pub fn winterhasp_pixel_type(bits: u8, signed: u32) -> u32
    ensures { result ≡ sample_number (sample_type bits (not (eqb signed 0))) }
{
    reader::siz::pixel_type_from_siz(bits, signed != 0) as u32
}

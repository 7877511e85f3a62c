// How much of a codestream is fetched for its main header (docs/RULES.md, "Growth").
ghost use Rattle.std.specs.Prelude.{◌≡◌};
ghost use Rattle.reader.specs.Growth.{next_region, grown};

const FIRST_REGION: u64 = 65_536;

#[derive(Clone, Copy)]
pub struct Grown {
    // The length of the last region.
    pub region: u64,
    // How often it was enlarged: the number of regions that were tried, less one.
    pub enlargements: u32,
}

// One region to the next: doubled, and capped at the codestream's length.
pub fn next_region(region: u64, length: u64) -> u64
    ensures { result ≡ next_region region length }
{
    region.saturating_mul(2).min(length)
}

pub fn grow_header_region(codestream: &[u8]) -> Grown
    ensures { result ≡ grown codestream.now }
{
    let length = codestream.len() as u64;
    let mut region = FIRST_REGION.min(length);
    let mut enlargements: u32 = 0;
    while region != length
        && header::extent::main_header_extent(&codestream[..region as usize]).is_none()
    {
        region = next_region(region, length);
        enlargements += 1;
    }
    Grown {
        region,
        enlargements,
    }
}

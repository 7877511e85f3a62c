// Where the image lies on the reference grid, and where a tile does by a rule (docs/RULES.md, "Tiles").
ghost use Rattle.std.specs.Prelude.{◌≡◌, ◌≤◌, length};
ghost use Rattle.tile.specs.Rules.{image_area, refusal_for, placed_by, rule_of};

use crate::annex_b::NoTile;
use crate::siz::{MARKER, field};
use types::{Area, Reason, Refusal, siz};

// The rule by which a tile's place is told.
#[derive(Clone, Copy, PartialEq, Eq)]
pub enum Rule {
    // The standard's.
    AnnexB,
    Original,
    // The standard's too; the header for one tile keeps it in its place.
    InPlace,
}

// As C gives it: 1 is the original's, 2 keeps a tile in its place; any other number is Annex B's, which is 0.
impl From<u32> for Rule {
    ghost from_gives = { λ number rule. rule ≡ rule_of number };

    fn from(number: u32) -> Rule {
        if number == 1 {
            return Rule::Original;
        }
        if number == 2 {
            Rule::InPlace
        } else {
            Rule::AnnexB
        }
    }
}

pub fn image_area(header: &[u8]) -> Area
    requires { 40 ≤ length header.now }
    ensures { result ≡ image_area header.now }
{
    Area {
        x0: field(header, siz::XOSIZ),
        y0: field(header, siz::YOSIZ),
        x1: field(header, siz::XSIZ),
        y1: field(header, siz::YSIZ),
    }
}

impl From<NoTile> for Refusal {
    ghost from_gives = { λ why r. r ≡ refusal_for why };

    fn from(why: NoTile) -> Refusal {
        let reason = match why {
            NoTile::NoGrid => Reason::NoGrid,
            NoTile::PastGrid => Reason::NoSuchTile,
        };
        Refusal {
            reason,
            place: MARKER as u64,
        }
    }
}

pub fn place(header: &[u8], isot: u16, rule: Rule) -> Result<Area, Refusal>
    requires { 40 ≤ length header.now }
    ensures { result ≡ placed_by rule header.now isot }
{
    match rule {
        Rule::Original => crate::original::tile_area(header, isot).ok_or(Refusal {
            reason: Reason::TileOutside,
            place: MARKER as u64,
        }),
        // The one call for two rules is compiled into this function, and two are not.
        Rule::AnnexB | Rule::InPlace => Ok(crate::annex_b::tile_area(header, isot)?),
    }
}

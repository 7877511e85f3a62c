// A codestream of one tile.
ghost use Rattle.std.specs.Prelude.{◌≡◌, length};
ghost use Rattle.types.specs.Refusals.{answer_number, answer_value};
ghost use Rattle.tile.specs.Assembly.{assembly_answer, assembly_out};
ghost use Rattle.tile.specs.declared.rules.Rule.TheVariants.{AnnexB};
ghost use Rattle.tile.specs.Rules.{rule_of};

use tile::rules::Rule;

// By Annex B. `tile_parts`: rows as the scan writes them. `value`: bytes written, or a refusal's place.
pub fn winterhasp_build_minimal_codestream(
    decode_header: &[u8],
    tile_parts: &[u8],
    codestream: &[u8],
    out: &mut [u8],
    value: &mut u64,
) -> u32
    ensures value { result ≡ answer_number (assembly_answer AnnexB decode_header.now tile_parts.now codestream.now (length out.old)) }
    ensures value_after { value.new ≡ answer_value (assembly_answer AnnexB decode_header.now tile_parts.now codestream.now (length out.old)) }
    ensures out_after { out.new ≡ assembly_out AnnexB decode_header.now tile_parts.now codestream.now out.old }
{
    let answer = tile::assembly::build_minimal_codestream(
        decode_header,
        tile_parts,
        codestream,
        Rule::AnnexB,
        out,
    );
    types::tell(answer, value)
}

// The same by a rule.
pub fn winterhasp_build_minimal_codestream_by_rule(
    decode_header: &[u8],
    tile_parts: &[u8],
    codestream: &[u8],
    rule: u32,
    out: &mut [u8],
    value: &mut u64,
) -> u32
    ensures value { result ≡ answer_number (assembly_answer (rule_of rule) decode_header.now tile_parts.now codestream.now (length out.old)) }
    ensures value_after { value.new ≡ answer_value (assembly_answer (rule_of rule) decode_header.now tile_parts.now codestream.now (length out.old)) }
    ensures out_after { out.new ≡ assembly_out (rule_of rule) decode_header.now tile_parts.now codestream.now out.old }
{
    let rule = Rule::from(rule);
    let answer = tile::assembly::build_minimal_codestream(
        decode_header,
        tile_parts,
        codestream,
        rule,
        out,
    );
    types::tell(answer, value)
}

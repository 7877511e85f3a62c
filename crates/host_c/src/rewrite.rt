// The decode header of one tile.
ghost use Rattle.std.specs.Prelude.{◌≡◌, length};
ghost use Rattle.types.specs.Refusals.{answer_number, answer_value};
ghost use Rattle.tile.specs.Rewrite.{rewrite_answer, rewrite_out};
ghost use Rattle.tile.specs.declared.rules.Rule.TheVariants.{AnnexB};
ghost use Rattle.tile.specs.Rules.{rule_of};

// By Annex B. `value`: bytes written, or a refusal's place.
#[unsafe(no_mangle)]
pub extern "C" fn winterhasp_rewrite_siz_for_tile(
    decode_header: &[u8],
    isot: u16,
    out: &mut [u8],
    value: &mut u64,
) -> u32
    ensures value { result ≡ answer_number (rewrite_answer AnnexB decode_header.now isot (length out.old)) }
    ensures value_after { value.new ≡ answer_value (rewrite_answer AnnexB decode_header.now isot (length out.old)) }
    ensures out_after { out.new ≡ rewrite_out AnnexB decode_header.now isot out.old }
{
    host::rewrite::winterhasp_rewrite_siz_for_tile(decode_header, isot, out, value)
}

// The same by a rule.
#[unsafe(no_mangle)]
pub extern "C" fn winterhasp_rewrite_siz_for_tile_by_rule(
    decode_header: &[u8],
    isot: u16,
    rule: u32,
    out: &mut [u8],
    value: &mut u64,
) -> u32
    ensures value { result ≡ answer_number (rewrite_answer (rule_of rule) decode_header.now isot (length out.old)) }
    ensures value_after { value.new ≡ answer_value (rewrite_answer (rule_of rule) decode_header.now isot (length out.old)) }
    ensures out_after { out.new ≡ rewrite_out (rule_of rule) decode_header.now isot out.old }
{
    host::rewrite::winterhasp_rewrite_siz_for_tile_by_rule(decode_header, isot, rule, out, value)
}

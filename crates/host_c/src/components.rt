// The components' sizes: a check that tells their number and an area, and one component, in an area or with the check before it.
ghost use Rattle.std.specs.Prelude.{◌≡◌};
ghost use Rattle.types.specs.Refusals.{answer_number};
ghost use Rattle.reader.specs.Components.{components_read, components_in_tile, component_in, component_of, component_in_tile};
ghost use Rattle.tile.specs.declared.rules.Rule.TheVariants.{AnnexB};
ghost use Rattle.tile.specs.Rules.{rule_of};
ghost use Rattle.host.specs.Components.{read_count, read_end, one_number, one_bits, one_value, sign_of, left, top, right, bottom};

// `components`: how many there are, or a refusal's place; the image's area on the reference grid.
#[unsafe(no_mangle)]
pub extern "C" fn winterhasp_read_components(
    codestream: &[u8],
    components: &mut u64,
    x0: &mut u64,
    y0: &mut u64,
    x1: &mut u64,
    y1: &mut u64,
) -> u32
    ensures value { result ≡ answer_number (components_read codestream.now) }
    ensures components_after { components.new ≡ read_count (components_read codestream.now) }
    ensures x0_after { x0.new ≡ read_end left (components_read codestream.now) x0.old }
    ensures y0_after { y0.new ≡ read_end top (components_read codestream.now) y0.old }
    ensures x1_after { x1.new ≡ read_end right (components_read codestream.now) x1.old }
    ensures y1_after { y1.new ≡ read_end bottom (components_read codestream.now) y1.old }
{
    host::components::winterhasp_read_components(codestream, components, x0, y0, x1, y1)
}

// The same with a tile's area, by Annex B.
#[unsafe(no_mangle)]
pub extern "C" fn winterhasp_read_components_in_tile(
    codestream: &[u8],
    tile: u16,
    components: &mut u64,
    x0: &mut u64,
    y0: &mut u64,
    x1: &mut u64,
    y1: &mut u64,
) -> u32
    ensures value { result ≡ answer_number (components_in_tile AnnexB codestream.now tile) }
    ensures components_after { components.new ≡ read_count (components_in_tile AnnexB codestream.now tile) }
    ensures x0_after { x0.new ≡ read_end left (components_in_tile AnnexB codestream.now tile) x0.old }
    ensures y0_after { y0.new ≡ read_end top (components_in_tile AnnexB codestream.now tile) y0.old }
    ensures x1_after { x1.new ≡ read_end right (components_in_tile AnnexB codestream.now tile) x1.old }
    ensures y1_after { y1.new ≡ read_end bottom (components_in_tile AnnexB codestream.now tile) y1.old }
{
    host::components::winterhasp_read_components_in_tile(
        codestream, tile, components, x0, y0, x1, y1,
    )
}

// The same by a rule.
#[unsafe(no_mangle)]
pub extern "C" fn winterhasp_read_components_in_tile_by_rule(
    codestream: &[u8],
    tile: u16,
    rule: u32,
    components: &mut u64,
    x0: &mut u64,
    y0: &mut u64,
    x1: &mut u64,
    y1: &mut u64,
) -> u32
    ensures value { result ≡ answer_number (components_in_tile (rule_of rule) codestream.now tile) }
    ensures components_after { components.new ≡ read_count (components_in_tile (rule_of rule) codestream.now tile) }
    ensures x0_after { x0.new ≡ read_end left (components_in_tile (rule_of rule) codestream.now tile) x0.old }
    ensures y0_after { y0.new ≡ read_end top (components_in_tile (rule_of rule) codestream.now tile) y0.old }
    ensures x1_after { x1.new ≡ read_end right (components_in_tile (rule_of rule) codestream.now tile) x1.old }
    ensures y1_after { y1.new ≡ read_end bottom (components_in_tile (rule_of rule) codestream.now tile) y1.old }
{
    host::components::winterhasp_read_components_in_tile_by_rule(
        codestream, tile, rule, components, x0, y0, x1, y1,
    )
}

// One component: `bits` per sample, or a refusal's place; in `signed` 1 for a sign; how far its samples lie apart; and the image's
// area in its samples. 256 where there is no such component.
#[unsafe(no_mangle)]
pub extern "C" fn winterhasp_component(
    codestream: &[u8],
    number: u64,
    bits: &mut u64,
    signed: &mut u64,
    xrsiz: &mut u64,
    yrsiz: &mut u64,
    x0: &mut u64,
    y0: &mut u64,
    x1: &mut u64,
    y1: &mut u64,
) -> u32
    ensures value { result ≡ one_number (component_of codestream.now number) }
    ensures bits_after { bits.new ≡ one_bits (component_of codestream.now number) bits.old }
    ensures signed_after { signed.new ≡ one_value sign_of (component_of codestream.now number) signed.old }
    ensures xrsiz_after { xrsiz.new ≡ one_value (λ i. i.xrsiz) (component_of codestream.now number) xrsiz.old }
    ensures yrsiz_after { yrsiz.new ≡ one_value (λ i. i.yrsiz) (component_of codestream.now number) yrsiz.old }
    ensures x0_after { x0.new ≡ one_value (λ i. left i.area) (component_of codestream.now number) x0.old }
    ensures y0_after { y0.new ≡ one_value (λ i. top i.area) (component_of codestream.now number) y0.old }
    ensures x1_after { x1.new ≡ one_value (λ i. right i.area) (component_of codestream.now number) x1.old }
    ensures y1_after { y1.new ≡ one_value (λ i. bottom i.area) (component_of codestream.now number) y1.old }
{
    host::components::winterhasp_component(
        codestream, number, bits, signed, xrsiz, yrsiz, x0, y0, x1, y1,
    )
}

// The same with a tile's area, by Annex B.
#[unsafe(no_mangle)]
pub extern "C" fn winterhasp_component_in_tile(
    codestream: &[u8],
    tile: u16,
    number: u64,
    bits: &mut u64,
    signed: &mut u64,
    xrsiz: &mut u64,
    yrsiz: &mut u64,
    x0: &mut u64,
    y0: &mut u64,
    x1: &mut u64,
    y1: &mut u64,
) -> u32
    ensures value { result ≡ one_number (component_in_tile AnnexB codestream.now tile number) }
    ensures bits_after { bits.new ≡ one_bits (component_in_tile AnnexB codestream.now tile number) bits.old }
    ensures signed_after { signed.new ≡ one_value sign_of (component_in_tile AnnexB codestream.now tile number) signed.old }
    ensures xrsiz_after { xrsiz.new ≡ one_value (λ i. i.xrsiz) (component_in_tile AnnexB codestream.now tile number) xrsiz.old }
    ensures yrsiz_after { yrsiz.new ≡ one_value (λ i. i.yrsiz) (component_in_tile AnnexB codestream.now tile number) yrsiz.old }
    ensures x0_after { x0.new ≡ one_value (λ i. left i.area) (component_in_tile AnnexB codestream.now tile number) x0.old }
    ensures y0_after { y0.new ≡ one_value (λ i. top i.area) (component_in_tile AnnexB codestream.now tile number) y0.old }
    ensures x1_after { x1.new ≡ one_value (λ i. right i.area) (component_in_tile AnnexB codestream.now tile number) x1.old }
    ensures y1_after { y1.new ≡ one_value (λ i. bottom i.area) (component_in_tile AnnexB codestream.now tile number) y1.old }
{
    host::components::winterhasp_component_in_tile(
        codestream, tile, number, bits, signed, xrsiz, yrsiz, x0, y0, x1, y1,
    )
}

// The same by a rule.
#[unsafe(no_mangle)]
pub extern "C" fn winterhasp_component_in_tile_by_rule(
    codestream: &[u8],
    tile: u16,
    rule: u32,
    number: u64,
    bits: &mut u64,
    signed: &mut u64,
    xrsiz: &mut u64,
    yrsiz: &mut u64,
    x0: &mut u64,
    y0: &mut u64,
    x1: &mut u64,
    y1: &mut u64,
) -> u32
    ensures value { result ≡ one_number (component_in_tile (rule_of rule) codestream.now tile number) }
    ensures bits_after { bits.new ≡ one_bits (component_in_tile (rule_of rule) codestream.now tile number) bits.old }
    ensures signed_after { signed.new ≡ one_value sign_of (component_in_tile (rule_of rule) codestream.now tile number) signed.old }
    ensures xrsiz_after { xrsiz.new ≡ one_value (λ i. i.xrsiz) (component_in_tile (rule_of rule) codestream.now tile number) xrsiz.old }
    ensures yrsiz_after { yrsiz.new ≡ one_value (λ i. i.yrsiz) (component_in_tile (rule_of rule) codestream.now tile number) yrsiz.old }
    ensures x0_after { x0.new ≡ one_value (λ i. left i.area) (component_in_tile (rule_of rule) codestream.now tile number) x0.old }
    ensures y0_after { y0.new ≡ one_value (λ i. top i.area) (component_in_tile (rule_of rule) codestream.now tile number) y0.old }
    ensures x1_after { x1.new ≡ one_value (λ i. right i.area) (component_in_tile (rule_of rule) codestream.now tile number) x1.old }
    ensures y1_after { y1.new ≡ one_value (λ i. bottom i.area) (component_in_tile (rule_of rule) codestream.now tile number) y1.old }
{
    host::components::winterhasp_component_in_tile_by_rule(
        codestream, tile, rule, number, bits, signed, xrsiz, yrsiz, x0, y0, x1, y1,
    )
}

// One component by itself, in an area that a check gave. It never refuses: 0, or 256 where there is no such component.
#[unsafe(no_mangle)]
pub extern "C" fn winterhasp_component_within(
    codestream: &[u8],
    area_x0: u32,
    area_y0: u32,
    area_x1: u32,
    area_y1: u32,
    number: u64,
    bits: &mut u64,
    signed: &mut u64,
    xrsiz: &mut u64,
    yrsiz: &mut u64,
    x0: &mut u64,
    y0: &mut u64,
    x1: &mut u64,
    y1: &mut u64,
) -> u32
    ensures value { result ≡ one_number (component_in codestream.now (record { x0 = area_x0; y0 = area_y0; x1 = area_x1; y1 = area_y1 }) number) }
    ensures bits_after { bits.new ≡ one_bits (component_in codestream.now (record { x0 = area_x0; y0 = area_y0; x1 = area_x1; y1 = area_y1 }) number) bits.old }
    ensures signed_after { signed.new ≡ one_value sign_of (component_in codestream.now (record { x0 = area_x0; y0 = area_y0; x1 = area_x1; y1 = area_y1 }) number) signed.old }
    ensures xrsiz_after { xrsiz.new ≡ one_value (λ i. i.xrsiz) (component_in codestream.now (record { x0 = area_x0; y0 = area_y0; x1 = area_x1; y1 = area_y1 }) number) xrsiz.old }
    ensures yrsiz_after { yrsiz.new ≡ one_value (λ i. i.yrsiz) (component_in codestream.now (record { x0 = area_x0; y0 = area_y0; x1 = area_x1; y1 = area_y1 }) number) yrsiz.old }
    ensures x0_after { x0.new ≡ one_value (λ i. left i.area) (component_in codestream.now (record { x0 = area_x0; y0 = area_y0; x1 = area_x1; y1 = area_y1 }) number) x0.old }
    ensures y0_after { y0.new ≡ one_value (λ i. top i.area) (component_in codestream.now (record { x0 = area_x0; y0 = area_y0; x1 = area_x1; y1 = area_y1 }) number) y0.old }
    ensures x1_after { x1.new ≡ one_value (λ i. right i.area) (component_in codestream.now (record { x0 = area_x0; y0 = area_y0; x1 = area_x1; y1 = area_y1 }) number) x1.old }
    ensures y1_after { y1.new ≡ one_value (λ i. bottom i.area) (component_in codestream.now (record { x0 = area_x0; y0 = area_y0; x1 = area_x1; y1 = area_y1 }) number) y1.old }
{
    host::components::winterhasp_component_within(
        codestream, area_x0, area_y0, area_x1, area_y1, number, bits, signed, xrsiz, yrsiz, x0, y0,
        x1, y1,
    )
}

// Every box of a file.
ghost use Rattle.std.specs.Prelude.{◌≡◌, ◌/◌, length};
ghost use Rattle.types.specs.Refusals.{answer_number, answer_value};
ghost use Rattle.reader.specs.BoxRow.{box_row_bytes};
ghost use Rattle.reader.specs.Boxes.{listed, listed_table};

// `value`: boxes, or a refusal's place. The table has a row for each 29 bytes.
pub fn winterhasp_list_boxes(file: &[u8], table: &mut [u8], value: &mut u64) -> u32
    ensures value { result ≡ answer_number (listed file.now (length table.old / box_row_bytes)) }
    ensures value_after { value.new ≡ answer_value (listed file.now (length table.old / box_row_bytes)) }
    ensures table_after { table.new ≡ listed_table file.now table.old }
{
    let answer = reader::boxes::list_boxes(file, table);
    types::tell(answer, value)
}

// The slot directory and the rows of a plain page. T plays no part in them: the usual one stands in the options, for C.
ghost use Rattle.numbers.specs.Writes.{Wrote};
ghost use Rattle.lumeviqo.specs.Calls.{parse_told, row_count_told, row_told, rows_told};

#[unsafe(no_mangle)]
pub extern "C" fn lumeviqo_parse(
    number: u64,
    plain: &[u8],
    leniency: u8,
    limit: usize,
    answer: &mut [u8],
) -> usize
    ensures { Wrote answer.old 0 (parse_told number plain.now leniency limit) answer.new result }
{
    lumeviqo::lumeviqo_parse(number, plain, leniency, limit, answer)
}

#[unsafe(no_mangle)]
pub extern "C" fn lumeviqo_row_count(
    number: u64,
    plain: &[u8],
    leniency: u8,
    limit: usize,
    answer: &mut [u8],
) -> usize
    ensures { Wrote answer.old 0 (row_count_told number plain.now leniency limit) answer.new result }
{
    lumeviqo::lumeviqo_row_count(number, plain, leniency, limit, answer)
}

#[unsafe(no_mangle)]
pub extern "C" fn lumeviqo_row(
    number: u64,
    plain: &[u8],
    leniency: u8,
    limit: usize,
    row: usize,
    answer: &mut [u8],
) -> usize
    ensures { Wrote answer.old 0 (row_told number plain.now leniency limit row) answer.new result }
{
    lumeviqo::lumeviqo_row(number, plain, leniency, limit, row, answer)
}

#[unsafe(no_mangle)]
pub extern "C" fn lumeviqo_rows(
    number: u64,
    plain: &[u8],
    leniency: u8,
    limit: usize,
    answer: &mut [u8],
) -> usize
    ensures { Wrote answer.old 0 (rows_told number plain.now leniency limit) answer.new result }
{
    lumeviqo::lumeviqo_rows(number, plain, leniency, limit, answer)
}

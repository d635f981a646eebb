// The slot directory and the rows of a plain page. T plays no part in them: the usual one stands in the options.
ghost use Rattle.numbers.specs.Writes.{Wrote};
ghost use Rattle.lumeviqo.specs.Calls.{parse_told, row_count_told, row_told, rows_told};

use answers::Options;

pub fn lumeviqo_parse(
    number: u64,
    plain: &[u8],
    leniency: u8,
    limit: usize,
    answer: &mut [u8],
) -> usize
    ensures { Wrote answer.old 0 (parse_told number plain.now leniency limit) answer.new result }
{
    let options = Options::new(leniency, Options::MIN_TRAILER_COUNT, limit);
    parse_layout::write_parse(answer, number, plain, options)
}

pub fn lumeviqo_row_count(
    number: u64,
    plain: &[u8],
    leniency: u8,
    limit: usize,
    answer: &mut [u8],
) -> usize
    ensures { Wrote answer.old 0 (row_count_told number plain.now leniency limit) answer.new result }
{
    let options = Options::new(leniency, Options::MIN_TRAILER_COUNT, limit);
    let counted = rows::rows_counted(number, plain, options);
    row_layout::write_row_count(answer, counted.err(), counted.unwrap_or(0))
}

pub fn lumeviqo_row(
    number: u64,
    plain: &[u8],
    leniency: u8,
    limit: usize,
    row: usize,
    answer: &mut [u8],
) -> usize
    ensures { Wrote answer.old 0 (row_told number plain.now leniency limit row) answer.new result }
{
    let options = Options::new(leniency, Options::MIN_TRAILER_COUNT, limit);
    let found = rows::row_found(number, plain, options, row);
    row_layout::write_row(answer, found.err(), found.ok())
}

pub fn lumeviqo_rows(
    number: u64,
    plain: &[u8],
    leniency: u8,
    limit: usize,
    answer: &mut [u8],
) -> usize
    ensures { Wrote answer.old 0 (rows_told number plain.now leniency limit) answer.new result }
{
    let options = Options::new(leniency, Options::MIN_TRAILER_COUNT, limit);
    row_layout::write_rows(answer, number, plain, options)
}

// Why a line is not put; specs/Table.antt gives document 02's number for each case. Nothing is written then.

#[derive(Clone, Copy)]
pub enum ExportError {
    // There are not 1 to 32 amounts.
    Order,
    // The line, its CRLF counted, doesn't fit the buffer.
    Room,
}

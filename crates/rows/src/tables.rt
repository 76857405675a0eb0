// The tables that rows are combined by.
ghost use Rattle.rows.specs.Tables.{TablesFit, tables_prop};

use model::Header;

// The sections of effects, rows and records, which fit the header that they go by.
#[derive(Clone, Copy)]
pub struct Tables<'a> {
    pub effects: &'a [u8],
    pub rows: &'a [u8],
    pub records: &'a [u8],
    pub head: Header,
    pub ghost fit: { TablesFit effects.now rows.now records.now head } by { tables_prop effects.now rows.now records.now head },
}

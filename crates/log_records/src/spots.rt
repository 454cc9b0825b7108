//! Which field of a record is wrong if its message cannot lie where the record says.

ghost use Rattle.std.specs.Prelude.{◌≡◌, ◌<◌, ◌^◌};
ghost use Rattle.block_table.specs.Puts.{goes_on as goes_on_in, begins as begins_in};
ghost use Rattle.log_records.specs.Misfits.{is_file_of as is_file_of_in, is_wrong_file as is_wrong_file_in, spot_misfit};

use block_table::{Block, BlockTable};
use js_base::Spot;

/// The offset of a spot's file in the record of a message without an id.
const FILE: usize = 19;

/// How far behind its file a spot's offset stands.
const OFFSET: usize = 2;

/// How far behind its file a spot's length stands.
const LENGTH: usize = 6;

/// Whether the block being written is in the file.
fn is_file_of(file: u32, writing: Option<Block>) -> bool
    ensures { result ≡ is_file_of_in file writing }
{
    match writing {
        Some(block) => file == block.file,
        None => false,
    }
}

/// Whether the file is that of a log, or a block other than the one being written.
fn is_wrong_file(table: &BlockTable, file: u32) -> bool
    ensures { result ≡ is_wrong_file_in file table.now }
{
    file < 2 || (table.has_block(file) && !is_file_of(file, table.writing()))
}

/// Whether the spot begins where the block being written ends.
fn goes_on(spot: Spot, writing: Option<Block>) -> bool
    ensures { result ≡ goes_on_in spot writing }
{
    match writing {
        Some(block) => spot.file == block.file && spot.at == block.end,
        None => false,
    }
}

/// Whether the spot begins a file that is no block.
fn begins(table: &BlockTable, spot: Spot) -> bool
    ensures { result ≡ begins_in spot table.now }
{
    spot.at == 0 && 2 <= spot.file && spot.file <= 65535 && !table.has_block(spot.file)
}

/// The field that is wrong if the spot of a message does not fit, counted from the record's kind. The message's id has so many bytes.
pub(crate) fn wrong_field(table: &BlockTable, id: usize, spot: Spot) -> usize
    requires bound { id < 2 ^ 63 }
    ensures { result ≡ spot_misfit id spot table.now }
{
    let file = FILE + id;
    if is_wrong_file(table, spot.file) {
        file
    } else if goes_on(spot, table.writing()) || begins(table, spot) {
        file + LENGTH
    } else {
        file + OFFSET
    }
}

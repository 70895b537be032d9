//! The table of images.
ghost use Rattle.sql_schema.specs.{Words.{option_to_list, Text, state, column, HasCleanDisk, Survives, BootImage, arch_number, at, number, image_columns, words_in, HasWords, IsTableRead, images}, Steps.{IsWritten, always}, TableStatements.{with_item, without_item}};
ghost use Rattle.std.specs.Prelude.{◌≡◌, IfOk, List, ℕ, map, Option, None, Some};

use crate::words::{joined_words, words_of};
use hall_types::{Image, Name, arch_number};
use ipxe_script::{Uri, Word, WordFault};
use sql_schema::creating::{ADD_IMAGE, FIND_IMAGE};
use sql_schema::{kind_in, name_in, name_value, small_value, text_value, write};
use sqlite::types::Type;
use sqlite::{Alter, Connection, Error, ErrorCode, Row, Transaction};
use std::alloc::Global;

// The image with a name goes.
const REMOVE_IMAGE: &str = "DELETE FROM images WHERE name = ?1";

// Why no word or URI was read from a column.
fn column_fault(fault: WordFault, at: usize) -> Error
    ensures bad_word { fault ≡ WordFault.BadWord → result ≡ Error.InvalidColumnType at Type.Text }
    ensures memory { fault ≡ WordFault.Memory → result ≡ Error.SqliteFailure ErrorCode.OutOfMemory }
{
    match fault {
        WordFault::BadWord => Error::InvalidColumnType(at, Type::Text),
        WordFault::Memory => Error::SqliteFailure(ErrorCode::OutOfMemory),
    }
}

// The URI in a column.
fn uri_in(alloc: Global, row: &Row, at: usize) -> Result<Uri, Error>
    ensures { IfOk result (λ uri. column row.now at ≡ Text uri) }
{
    let text: String = row.get(at)?;
    Uri::new(alloc, text.as_str()).map_err(|fault| column_fault(fault, at))
}

// The words of the text in a column.
fn words_at(alloc: Global, row: &Row, at: usize) -> Result<Vec<Word>, Error>
    ensures { IfOk result (λ words. (text : List ℕ) → column row.now at ≡ Text text → words.items ≡ words_in text) }
{
    let text: String = row.get(at)?;
    words_of(alloc, text.as_str()).map_err(|fault| column_fault(fault, at))
}

fn image_of(alloc: Global, row: &Row) -> Result<Image, Error>
    ensures name { IfOk result (λ image. column row.now 0 ≡ Text image.name) }
    ensures arch { IfOk result (λ image. column row.now 1 ≡ number (arch_number image.arch)) }
    ensures kernel { IfOk result (λ image. column row.now 2 ≡ Text image.kernel) }
    ensures initrd { IfOk result (λ image. column row.now 3 ≡ Text image.initrd) }
    ensures args { IfOk result (λ image. (text : List ℕ) → column row.now 4 ≡ Text text → image.args ≡ words_in text) }
{
    let name = name_in(row, 0)?;
    let arch = kind_in(row, 1)?;
    let kernel = uri_in(alloc, row, 2)?;
    let initrd = uri_in(alloc, row, 3)?;
    let args = words_at(alloc, row, 4)?;
    Image::new(name, arch, kernel, initrd, args).map_err(|_| Error::InvalidColumnType(
        4,
        Type::Text,
    ))
}

fn first_image(alloc: Global, rows: &Vec<Row>) -> Result<Option<Image>, Error>
    ensures { IfOk result (λ found. (image : Option BootImage) → ((i : BootImage) → image ≡ Some i → HasWords i) → rows.now.items ≡ map image_columns (option_to_list image) → found ≡ image) }
{
    match rows.first() {
        None => Ok(None),
        Some(row) => Ok(Some(image_of(alloc, row)?)),
    }
}

/// The image with this name, if it is recorded. `alloc` is for the answer.
pub fn find_image<S: Alter>(
    alloc: Global,
    conn: &mut Connection<S>,
    name: &Name,
) -> Result<Option<Image>, Error>
    ensures clean { HasCleanDisk (state S.Store conn.new) → HasCleanDisk (state S.Store conn.old) }
    ensures asked { HasCleanDisk (state S.Store conn.new) → IsTableRead (state S.Store conn.old) (state S.Store conn.new) result (λ h image. image ≡ at h.images name.now) }
{
    match conn.query_all(FIND_IMAGE, &[name_value(name)]) {
        Ok(rows) => first_image(alloc, &rows),
        Err(error) => Err(error),
    }
}

/// A new image, whose name has to be free. `alloc` is for the text of its arguments.
pub fn add_image<S: Alter>(
    alloc: Global,
    tx: &mut Transaction<'_, S>,
    image: &Image,
) -> Result<(), Error>
    ensures same_reference { tx.new.conn.ghost_name ≡ tx.old.conn.ghost_name }
    ensures written { HasCleanDisk (state S.Store tx.new.conn.now) → IsWritten (state S.Store tx.old.conn.now) (state S.Store tx.new.conn.now) result (λ c. at c.hall.images image.now.name ≡ None) (λ c. with_item images c image.now) }
    ensures survives { Survives (state S.Store tx.old.conn.now) (state S.Store tx.new.conn.now) (λ _. ⊥) }
{
    image.is_image();
    match joined_words(alloc, image.args()) {
        Ok(args) => write(
            tx,
            ADD_IMAGE,
            &[
                name_value(&image.name()),
                small_value(arch_number(image.arch())),
                text_value(image.kernel().text()),
                text_value(image.initrd().text()),
                text_value(args.as_str()),
            ],
        ),
        Err(error) => Err(Error::from(error)),
    }
}

/// The image with this name goes. It has to be nobody's: a table that refers to it refuses.
pub fn remove_image<S: Alter>(tx: &mut Transaction<'_, S>, name: &Name) -> Result<(), Error>
    ensures same_reference { tx.new.conn.ghost_name ≡ tx.old.conn.ghost_name }
    ensures written { HasCleanDisk (state S.Store tx.new.conn.now) → IsWritten (state S.Store tx.old.conn.now) (state S.Store tx.new.conn.now) result always (λ c. without_item images c name.now) }
    ensures survives { Survives (state S.Store tx.old.conn.now) (state S.Store tx.new.conn.now) (λ _. ⊥) }
{
    write(tx, REMOVE_IMAGE, &[name_value(name)])
}

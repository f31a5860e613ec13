//! The version of the library, and the texts of its codes.
ghost use Rattle.std.specs.Prelude.{◌≡◌, pos, true};
ghost use Rattle.vdb_c.specs.Texts.{is_ended};

/// Returns the version of the library as one number: 1,000,000 for each of the first part, 1,000 for each of the second, and the third.
#[unsafe(no_mangle)]
pub extern "C" fn vdb_version() -> i32
    ensures { result ≡ pos 1002000 }
{
    1_002_000
}

/// Writes to `text` where the text of a code begins. It ends with a 0, and stays there for as long as the program runs.
#[unsafe(no_mangle)]
pub extern "C" fn vdb_message_at(code: i32, text: &mut *const u8) {
    if let Some(first) = message(code).as_bytes().first() {
        *text = std::ptr::from_ref(first);
    }
}

/// Returns the text of a code, ended by a 0. A code that no call returns has none of its own.
fn message(code: i32) -> &'static str
    ensures { is_ended result.now ≡ true }
{
    match code {
        0 => "done\0",
        1 => "the handle is empty\0",
        2 => "out of memory\0",
        3 => "the grid would need more root blocks than its root limit\0",
        4 => "an argument is out of range\0",
        5 => "a sum is outside the type of the grid's values\0",
        6 => "the two grids, or the grid and an array, have values of different types\0",
        7 => "booleans have no sum\0",
        8 => "the scene has no such grid\0",
        9 => "a name is a letter a to z, then up to 15 of a to z, 0 to 9 and _\0",
        10 => "the scene has a grid of this name\0",
        11 => "a scene has at most 64 grids\0",
        12 => "a grid has at most 16 metadata pairs\0",
        13 => "the grid has no such metadata pair\0",
        14 => "a metadata text is 1 to 64 printable ASCII characters without spaces\0",
        15 => "the buffer is too small\0",
        16 => "both handles of the call are the same\0",
        20 => "magic: the file doesn't begin with VDBS\0",
        21 => "version: the version is neither 1 nor 2\0",
        22 => "truncated: the file ends before a field or inside it\0",
        23 => "name: a name has another form or order, or the file has more than 64 grids\0",
        24 => "kind: the number of a grid's type is above 2\0",
        25 => "value: the byte of a boolean is above 1\0",
        26 => "limit: a root limit is 0 or above 65,536\0",
        27 => "meta: a metadata pair has another form or order, or a grid has more than 16\0",
        28 => "key: the key of a root block is out of range or out of order\0",
        29 => "root-limit: a grid has more root blocks than its root limit\0",
        30 => "tag: a body begins with a byte that is no tag\0",
        31 => "index: the count or the number of an entry is out of range or out of order\0",
        32 => "background: the file lists an inactive cell of the background\0",
        33 => "constant-node: all entries of a node have the same cell\0",
        34 => "trailing: a byte follows the last field\0",
        35 => "too-long: a file has at most 268,435,456 bytes\0",
        _ => "unknown code\0",
    }
}

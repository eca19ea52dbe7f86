// The third call, for C: the last file's path as a part of the start or of the store, since an export hands back no slice.
// What a reader must believe stands in specs/Parts.antt: `LastPart`, with `last_file` of `replay`'s specs/Replay.antt.
ghost use Rattle.leveecrumb.specs.Parts.{LastPart};

// Where the places of the store's paths begin, three bytes each, and the pool that holds their bytes.
const PLACES: usize = 676;

const POOL: usize = 2948;

// A part of a lent area: which area, a number for C, where it begins and how long it is.
#[repr(C)]
#[derive(Clone, Copy)]
pub struct Part {
    pub stored: u8,
    pub from: usize,
    pub size: usize,
}

impl Part {
    pub const OF_START: u8 = 0;

    pub const OF_STORE: u8 = 1;
}

// The last file's path, by its number: 255 the whole start, else a part of the store, which is empty where the store's bytes name no such path.
pub fn leveecrumb_last_file(start: &[u8], store: &[u8], number: u8) -> Part
    ensures { LastPart start.now store.now number result }
{
    if number == gran::NONE {
        return Part {
            stored: Part::OF_START,
            from: 0,
            size: start.len(),
        };
    }
    let path = fields::path(store, number);
    if path.is_empty() {
        return Part {
            stored: Part::OF_STORE,
            from: 0,
            size: 0,
        };
    }
    let place = fields::word(store, PLACES + 3 * usize::from(number));
    Part {
        stored: Part::OF_STORE,
        from: POOL + usize::from(place),
        size: path.len(),
    }
}

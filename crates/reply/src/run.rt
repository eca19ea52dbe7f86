// A run that a search found: the length of its lines, and the lines, from the first step on.
ghost use Rattle.std.specs.Prelude.{◌≡◌, ◌++◌, ◌+◌, ◌*◌, ◌<◌, length};
ghost use Rattle.lines.specs.Line.{in_front};
ghost use Rattle.gran.specs.Real as real;
ghost use Rattle.fields.specs.Fields.{policy_in};
ghost use Rattle.records.specs.Record.{records_of, step_lines};
ghost use Rattle.walk.specs.Walk.{queued, labelled};
ghost use Rattle.reply.specs.Run.{LyingIn, WritableIn, Wrote};

use gran::Process;
use numbered::Sizes;
use walk::{EACH, LABEL, Progress};

// A search that is over: the work area, the store with its tables and sizes, where the search ended, and the process that it began with.
#[derive(Clone, Copy)]
pub struct Searched<'a> {
    pub area: &'a [u16],
    pub store: &'a [u8],
    pub tables: &'a [u8],
    pub sizes: Sizes,
    pub end: Progress,
    pub start: Process,
}

// Where the next line goes, the number of the state that is left, and the process that is in it.
#[derive(Clone, Copy)]
pub struct Writing {
    pub at: usize,
    pub from: usize,
    pub process: Process,
}

// The state that a step leads to, by its number, and the step's label.
#[derive(Clone, Copy)]
struct Taken {
    to: usize,
    label: u16,
}

impl Searched<'_> {
    // The step whose state stands at this place.
    fn taken(self, place: u16) -> Taken
        requires place_in { 3 * place < length self.area.now }
        requires label_in { 3 * queued self.area.now place + 2 < length self.area.now }
        ensures to { result.to ≡ queued self.entry.area.now place }
        ensures label { result.label ≡ labelled self.entry.area.now (queued self.entry.area.now place) }
    {
        let to = usize::from(self.area[EACH * usize::from(place)]);
        Taken {
            to,
            label: self.area[EACH * to + LABEL],
        }
    }

    // The length of all lines of a run with these places, the last step's first.
    pub fn run_length(self, places: &[u16]) -> usize
        requires { LyingIn self places.now }
        ensures { (g : LyingIn self.entry places.now) (σ : real.State) → result ≡ length (step_lines (records_of g.policy σ g.acts)) }
    {
        let mut size = 0;
        for place in places {
            size += shown::label_length(self.taken(*place).label);
        }
        size
    }

    // Writes the lines of such a run, the first of them as `first` says.
    pub fn write_run(self, places: &[u16], room: &mut [u8], first: Writing)
        requires { (g : WritableIn self places.now) × Wrote g 0 first room.old }
        ensures { (g : WritableIn self.entry places.now) → Wrote g 0 first room.old → room.new ≡ in_front (g.front ++ step_lines (records_of (policy_in self.entry.store.now) g.real g.acts)) g.before }
    {
        let mut writing = first;
        for place in places.iter().rev() {
            let taken = self.taken(*place);
            let step = shown::step_shown(
                self.store,
                self.tables,
                self.sizes,
                writing.from,
                taken.label,
                taken.to,
                writing.process,
            );
            writing = Writing {
                at: records::put_step(room, writing.at, step),
                from: taken.to,
                process: shown::process_after(writing.process, step),
            };
        }
    }
}

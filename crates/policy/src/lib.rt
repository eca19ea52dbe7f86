// What a policy's text gives: its frames and their tests, the fold over its lines, and that an accepted policy is good. Rests on `paths`, `lines`, `rows`, `gran` and `store`.
// What a reader must believe stands in specs/Frames.antt, the tests of a frame, specs/Load.antt, what a text gives, specs/Refused.antt, the
// numbers of refusals, and specs/Types.antt, the codes of the types.
#![tactic(auto)]

pub mod frame; // frame.rt: the types of frames, their fields, and the tests that need no policy
pub mod refusal; // refusal.rt: why a text or an ask is refused, by number

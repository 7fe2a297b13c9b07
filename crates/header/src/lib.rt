// The header of an element, byte by byte: what the next byte decides, with the first byte that
// does. Every public function answers any values.
#![tactic(auto)]

ghost use Rattle.std.specs.Prelude.{◌≡◌, ◌+◌, ◌^◌, ◌<◌};
ghost use Rattle.header.specs.Header.{arrived_at, entering, on_tag, on_length, on_one, on_first};
ghost use Rattle.header.specs.Header.{on_second, moved};
ghost use Rattle.header.specs.declared.Move.TheVariants.{Refuse};

// The numbers of the refusals that only uploads have (Rules 5.19 and 5.20): more bytes than were
// announced, and fewer.
pub const SURPLUS: u8 = 19;

pub const EARLY: u8 = 20;

// The levels of an upload; the outermost element is level 1 (Rule 10.2).
pub const UPLOAD_LEVELS: u8 = 20;

// What the next byte is. `at` is the offset of the tag of its element, and of the byte itself in a
// body.
#[derive(Clone, Copy, Debug, PartialEq, Eq)]
pub enum Due {
    // a tag
    Tag { at: u16 },
    // the first byte of a length
    Length { at: u16, tag: u8 },
    // the byte after 81
    One { at: u16, tag: u8 },
    // the first byte after 82, and the second
    First { at: u16, tag: u8 },
    Second { at: u16, tag: u8, first: u8 },
    // a byte of a body that isn't examined
    Body { at: u16, end: u16 },
    // nothing: every byte that was announced is here
    Nothing,
    // nothing: a fault is certain, since so many bytes
    Refused { number: u8, offset: u16, after: u32 },
}

// What a byte does: refuses the element at `at`, after so many bytes, waits for the next byte of
// a header, enters the body of an element, passes a byte of a body, comes after the last one, or
// changes nothing.
#[derive(Clone, Copy, Debug, PartialEq, Eq)]
pub enum Move {
    Refuse {
        number: u8,
        at: u16,
        after: u32,
    },
    Await(Due),
    Enter {
        at: u16,
        tag: u8,
        start: u16,
        stop: u16,
    },
    Pass {
        at: u16,
        end: u16,
    },
    Surplus,
    Stay,
}

// The element at `at` is refused, after so many bytes.
fn refuse(number: u8, at: u16, after: u32) -> Move
    ensures { result ≡ Refuse number at after }
{
    Move::Refuse { number, at, after }
}

// The header of the element at `at` is complete.
fn entering(at: u16, tag: u8, start: usize, size: usize, end: u16) -> Move
    requires { (start < 2 ^ 32) × (size < 2 ^ 32) }
    ensures { result ≡ entering at tag start size end }
{
    let stop = start + size;
    if (end as usize) < stop {
        return refuse(der::OVERRUN, at, start as u32);
    }
    Move::Enter {
        at,
        tag,
        start: start as u16,
        stop: stop as u16,
    }
}

// The next byte is a tag.
fn on_tag(at: u16, b: u8, end: u16) -> Move
    ensures { result ≡ on_tag at b end }
{
    let next = at as usize + 1;
    let after = at as u32 + 1;
    if b == 0 || b % 0x20 == 0x1F {
        return refuse(der::TAG_FORM, at, after);
    }
    if end as usize <= next {
        return refuse(der::OVERRUN, at, after);
    }
    Move::Await(Due::Length { at, tag: b })
}

// The next byte is the first one of a length.
fn on_length(at: u16, tag: u8, b: u8, end: u16) -> Move
    ensures { result ≡ on_length at tag b end }
{
    let second = at as usize + 2;
    let third = at as usize + 3;
    let wide = end as usize;
    let after = at as u32 + 2;
    match b {
        0..=0x7F => entering(at, tag, second, b as usize, end),
        0x81 if wide <= second => refuse(der::OVERRUN, at, after),
        0x81 => Move::Await(Due::One { at, tag }),
        0x82 if wide <= third => refuse(der::OVERRUN, at, after),
        0x82 => Move::Await(Due::First { at, tag }),
        _ => refuse(der::LENGTH_FORM, at, after),
    }
}

// The next byte is the one after 81.
fn on_one(at: u16, tag: u8, b: u8, end: u16) -> Move
    ensures { result ≡ on_one at tag b end }
{
    if b < 0x80 {
        return refuse(der::LENGTH_FORM, at, at as u32 + 3);
    }
    entering(at, tag, at as usize + 3, b as usize, end)
}

// The next byte is the first one after 82. The second can make the length greater by 255 at most:
// if the least length runs past the parent, every one does, and on a level that isn't allowed it
// is certain that the element is refused for that, if the greatest length doesn't.
fn on_first(at: u16, tag: u8, b: u8, end: u16, deep: bool) -> Move
    ensures { result ≡ on_first at tag b end deep }
{
    let after = at as u32 + 3;
    if b == 0 {
        return refuse(der::LENGTH_FORM, at, after);
    }
    let wide = end as usize;
    let start = at as usize + 4;
    let high = b as usize;
    let least = start + high * 256;
    let most = least + 255;
    if wide < least {
        return refuse(der::OVERRUN, at, after);
    }
    if deep && most <= wide {
        return refuse(der::TOO_MANY, at, after);
    }
    Move::Await(Due::Second { at, tag, first: b })
}

// The next byte is the second one after 82.
fn on_second(at: u16, tag: u8, first: u8, b: u8, end: u16) -> Move
    ensures { result ≡ on_second at tag first b end }
{
    let size = first as usize * 256 + b as usize;
    entering(at, tag, at as usize + 4, size, end)
}

// What the byte b does, if `due` is due, the parent ends at `end`, and one element more would be
// on a level that isn't allowed if `deep`.
pub fn moved(due: Due, b: u8, end: u16, deep: bool) -> Move
    ensures { result ≡ moved due b end deep }
{
    match due {
        Due::Tag { at } => on_tag(at, b, end),
        Due::Length { at, tag } => on_length(at, tag, b, end),
        Due::One { at, tag } => on_one(at, tag, b, end),
        Due::First { at, tag } => on_first(at, tag, b, end, deep),
        Due::Second { at, tag, first } => on_second(at, tag, first, b, end),
        Due::Body { at, end: stop } => Move::Pass { at, end: stop },
        Due::Nothing => Move::Surplus,
        Due::Refused { .. } => Move::Stay,
    }
}

// How many bytes an upload of `total` bytes has when `due` is due.
pub fn arrived(due: Due, total: u16) -> u32
    ensures { result ≡ arrived_at due total }
{
    match due {
        Due::Tag { at } | Due::Body { at, .. } => at as u32,
        Due::Length { at, .. } => at as u32 + 1,
        Due::One { at, .. } | Due::First { at, .. } => at as u32 + 2,
        Due::Second { at, .. } => at as u32 + 3,
        Due::Nothing => total as u32,
        Due::Refused { after, .. } => after,
    }
}

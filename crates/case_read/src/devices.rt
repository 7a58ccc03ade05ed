//! What a case says of a device: which of its calls fail, and how many bytes one takes or gives.

/// What can fail.
#[derive(Clone, Copy, PartialEq, Eq)]
pub enum Device {
    Shelf,
    Events,
    Out,
    Err,
    Builder,
}

/// Which calls fail.
#[derive(Clone, Copy, PartialEq, Eq)]
pub enum When {
    Never,
    At(u64),
    /// Each in turn, up to a run in which none does.
    Each,
}

/// What a case says of a device: which calls fail, how many bytes one call takes or gives, and for
/// how many there is room; and the inputs that are read in turn, of a shelf of which each call fails.
#[derive(Clone, Copy)]
pub struct Setting<'a> {
    pub device: Device,
    pub when: When,
    pub piece: Option<usize>,
    pub room: Option<usize>,
    pub inputs: &'a str,
}

fn device_of(name: &str) -> Option<Device> {
    match name {
        "shelf" => Some(Device::Shelf),
        "events" => Some(Device::Events),
        "out" => Some(Device::Out),
        "err" => Some(Device::Err),
        "builder" => Some(Device::Builder),
        _ => None,
    }
}

/// A number that isn't 0.
fn count_of(text: &str) -> Option<usize> {
    match text.parse::<usize>() {
        Ok(0) => None,
        Ok(number) => Some(number),
        Err(_) => None,
    }
}

fn when_of(text: &str) -> Option<When> {
    if text == "each" {
        return Some(When::Each);
    }
    match count_of(text) {
        Some(number) => Some(When::At(number as u64)),
        None => None,
    }
}

/// Whether a setting can be: the inputs are named where each call of the shelf fails and nowhere
/// else, and pieces are those of bytes.
fn is_legal(setting: &Setting) -> bool {
    let is_shelf = setting.device == Device::Shelf;
    let is_each = setting.when == When::Each;
    if setting.inputs.is_empty() == (is_shelf && is_each) {
        return false;
    }
    setting.piece.is_none() || !(is_shelf || setting.device == Device::Builder)
}

/// What words after `fails at ` say.
fn failing_of(device: Device, words: &str) -> Option<Setting<'_>> {
    let (words, inputs) = words.split_once(" of ").unwrap_or((words, ""));
    let word = match device {
        Device::Events => " giving ",
        _ => " taking ",
    };
    let (when, piece) = match words.split_once(word) {
        Some((when, piece)) => (when, Some(count_of(piece)?)),
        None => (words, None),
    };
    let setting = Setting {
        device,
        when: when_of(when)?,
        piece,
        room: None,
        inputs,
    };
    if is_legal(&setting) {
        Some(setting)
    } else {
        None
    }
}

fn sized(device: Device, piece: Option<usize>, room: Option<usize>) -> Setting<'static> {
    Setting {
        device,
        when: When::Never,
        piece,
        room,
        inputs: "",
    }
}

/// What words say of the bytes that a call takes or gives, or for which there is room.
fn sized_of(device: Device, words: &str) -> Option<Setting<'static>> {
    let (word, number) = words.rsplit_once(' ')?;
    let number = count_of(number)?;
    let is_output = device == Device::Out || device == Device::Err;
    match word {
        "give" if device == Device::Events => Some(sized(device, Some(number), None)),
        "takes" if is_output => Some(sized(device, Some(number), None)),
        "has room" if is_output => Some(sized(device, None, Some(number))),
        _ => None,
    }
}

/// What a line says of a device, if it says something of one: `shelf fails at 2`,
/// `shelf fails at each of a b`, `events fail at 1 giving 10`, `out fails at each taking 1`,
/// `err takes 10`, `out has room 20`, `events give 1`, `builder refuses at 1`.
pub fn setting_of(line: &str) -> Option<Setting<'_>> {
    let (name, words) = line.split_once(' ')?;
    let device = device_of(name)?;
    let verb = match device {
        Device::Events => "fail at ",
        Device::Builder => "refuses at ",
        _ => "fails at ",
    };
    match words.strip_prefix(verb) {
        Some(words) => failing_of(device, words),
        None => sized_of(device, words),
    }
}

//! The worlds in which commands run, and what a run tells.

use crate::devices::{Device, Setting, When};
use sig_base::Limits;

/// Which call of each device fails (0: none), how many bytes one read and one write take, and for
/// how many each output has room.
#[derive(Clone, Copy)]
pub struct World {
    pub limits: Limits,
    pub shelf: u64,
    pub events: u64,
    pub out: u64,
    pub err: u64,
    pub builder: u64,
    pub given: usize,
    pub out_taken: usize,
    pub err_taken: usize,
    pub out_room: usize,
    pub err_room: usize,
}

/// What a run wrote, and the number that it ended with.
#[derive(Drop)]
pub struct Ran {
    pub status: u8,
    pub out: Vec<u8>,
    pub err: Vec<u8>,
}

/// A world in which nothing fails.
pub fn still() -> World {
    World {
        limits: Limits::standard(),
        shelf: 0,
        events: 0,
        out: 0,
        err: 0,
        builder: 0,
        given: 4096,
        out_taken: 4096,
        err_taken: 4096,
        out_room: 65_536,
        err_room: 65_536,
    }
}

/// The world where this call of the device fails.
pub fn failing(world: World, device: Device, call: u64) -> World {
    let mut world = world;
    match device {
        Device::Shelf => world.shelf = call,
        Device::Events => world.events = call,
        Device::Out => world.out = call,
        Device::Err => world.err = call,
        Device::Builder => world.builder = call,
    }
    world
}

fn with_piece(world: World, device: Device, piece: usize) -> World {
    let mut world = world;
    match device {
        Device::Events => world.given = piece,
        Device::Out => world.out_taken = piece,
        Device::Err => world.err_taken = piece,
        Device::Shelf | Device::Builder => {}
    }
    world
}

fn with_room(world: World, device: Device, room: usize) -> World {
    let mut world = world;
    match device {
        Device::Out => world.out_room = room,
        Device::Err => world.err_room = room,
        Device::Shelf | Device::Events | Device::Builder => {}
    }
    world
}

/// The world with what is said of a device.
pub fn with_setting(world: World, setting: &Setting) -> World {
    let mut world = world;
    if let When::At(call) = setting.when {
        world = failing(world, setting.device, call);
    }
    if let Some(piece) = setting.piece {
        world = with_piece(world, setting.device, piece);
    }
    if let Some(room) = setting.room {
        world = with_room(world, setting.device, room);
    }
    world
}

//! Threads that draw numbers at one board.
ghost use Rattle.std.specs.Prelude.{◌≡◌, ◌<◌, IfOk};
ghost use Rattle.turn_lock.specs.BoardSeats.{AreFresh};
ghost use Rattle.turn_tests.specs.Draws.{Ready, AllReady};

use std::alloc::{AllocError, Global};
use std::marker::Model;
use std::thread;
use std::thread::Threads;
use turn_lock::board::{Board, Seat};

// From this number on a seat draws no more.
const LIMIT: u64 = 1_000_000;

/// A seat at the board, and the numbers that it drew, in order.
#[derive(Drop)]
pub struct Drawer {
    seat: Seat,
    numbers: Vec<u64>,
}

impl Model for Drawer {
    ghost use Rattle.turn_tests.specs.Draws.{DrawerIs};

    ghost Value = { DrawerIs };

    ghost view = { λ d. record { board = d.seat.board; drawn = d.seat.drawn; numbers = d.numbers.items } };
}

impl Drawer {
    /// The numbers that were drawn, in order.
    pub fn numbers(&self) -> &[u64] {
        self.numbers.as_slice()
    }

    // Draws numbers as long as there is room for them, and the board gives them out.
    fn draw(&mut self, board: &Board, count: u32)
        requires { Ready board.now.id self.old }
    {
        for _ in 0..count {
            if self.numbers.len() == self.numbers.capacity() {
                return;
            }
            let number = board.draw(&mut self.seat);
            self.numbers.push_reserved(number);
            if number >= LIMIT {
                return;
            }
        }
    }
}

// A drawer for each seat, with room for so many numbers.
fn drawers(
    alloc: Global,
    board: &Board,
    mut seats: Vec<Seat>,
    each: u32,
) -> Result<Vec<Drawer>, AllocError>
    requires { AreFresh board.now.id 0 seats.items }
    ensures { IfOk result (λ r. AllReady board.now.id r.items) }
{
    let mut drawers = Vec::new(alloc);
    while let Some(seat) = seats.pop() {
        let numbers = Vec::with_capacity(alloc, each as usize)?;
        drawers.push(Drawer { seat, numbers })?;
    }
    Ok(drawers)
}

// Each draws in a thread of its own where there is one.
fn draw_all<R: Threads + Sync>(rt: &R, board: &Board, drawers: &mut [Drawer], each: u32)
    requires { AllReady board.now.id drawers.old }
{
    let threads = drawers.len().max(1);
    thread::for_each_mut(
        rt,
        drawers,
        threads,
        &|_, drawer: &mut Drawer|
            requires { Ready board.now.id drawer.old }
        { drawer.draw(board, each) },
    );
}

/// So many seats of one board draw so many numbers each, in threads of their own.
pub fn draw_numbers<R: Threads + Sync>(
    rt: &R,
    alloc: Global,
    count: u16,
    each: u32,
) -> Result<Vec<Drawer>, AllocError>
    requires { 0 < count }
{
    let (board, seats) = Board::new(alloc, count)?;
    let mut drawers = drawers(alloc, &board, seats, each)?;
    draw_all(rt, &board, drawers.as_mut_slice(), each);
    Ok(drawers)
}

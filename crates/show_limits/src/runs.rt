// Rows, run over their boards.
use crate::boards::Board;
use crate::rows::{LINE_END_AT, ROW_SIZE, Row};
use crate::{lines, packets, rows};
use line::codes;
use std::io;

fn say_row(rt: &impl Print, row: &Row) -> io::Result<()> {
    rt.write_all(&row[..LINE_END_AT])
}

// The call of a row, and its line.
fn call(rt: &impl Print, board: &mut Board, row: &Row) -> io::Result<()> {
    let mut packet = [0; codes::REPLY_LIMIT];
    let size = packets::put_packet(row, &mut packet);
    let mut reply = [0; codes::REPLY_LIMIT];
    let called = board.call(
        rows::wait_in(row),
        octets::part_of(&packet, 0, size),
        &mut reply,
    );
    say_row(rt, row)?;
    lines::show_standing(rt, board.standing())?;
    lines::show_flash(rt, &board.main, &board.image)?;
    lines::show_answer(rt, called, &reply)
}

// The board of a row, its row, and the names of the columns.
fn start(rt: &impl Print, board: &mut Board, row: &Row) -> io::Result<()> {
    board.start(row);
    rt.println("")?;
    say_row(rt, row)?;
    rt.println("  phase    sleep  idle wrong tries  rate  main   set reply")
}

// The rows of boards and of their calls, one after the other. The first board, for calls that come before any row of one, is blank.
pub(crate) fn run(rt: &impl Print, input: &[u8]) -> io::Result<()> {
    let mut board = Board::blank();
    for row in input.as_chunks::<ROW_SIZE>().0 {
        if rows::is_board(row) {
            start(rt, &mut board, row)?;
        } else {
            call(rt, &mut board, row)?;
        }
    }
    Ok(())
}

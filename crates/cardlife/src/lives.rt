// Lives a card's life and prints each call with its answer.
use super::stories::Story;
use card::Refusal;
use catalog::with_code;
use code::Code;
use report::Reported;
use runs::{Life, live};
use std::fmt::Display;
use std::io;

/// Tells the stories in turn.
pub(crate) fn tell_all(rt: &HostRuntime, stories: &[Story<'_>]) -> io::Result<()> {
    for story in stories {
        tell(rt, story)?;
    }
    Ok(())
}

/// Makes the story's card, lives its life, and prints a line for the making and for each call.
pub(crate) fn tell(rt: &HostRuntime, story: &Story<'_>) -> io::Result<()> {
    let name = story.name;
    print!(rt; "{name}, ")?;
    match story.wanted.choose() {
        Ok(chosen) => with_code!(chosen, code => tell_card(rt, code, story)),
        Err(refusal) => rt.println(Reported(&refusal)),
    }
}

fn tell_card<C: Code + Drop>(rt: &HostRuntime, code: C, story: &Story<'_>) -> io::Result<()> {
    let cells = code.length();
    let radius = code.radius();
    let allowance = story.allowance;
    let pages = story.pages;
    print!(rt; "{cells} cells, radius {radius}, allowance {allowance}, pages {pages} -> ")?;
    match live(
        rt.alloc(),
        code,
        allowance,
        pages,
        story.floors,
        story.calls,
    ) {
        Ok(life) => tell_life(rt, story, &life),
        Err(fault) => rt.println(fault),
    }
}

fn tell_life<C>(rt: &HostRuntime, story: &Story<'_>, life: &Life<C>) -> io::Result<()> {
    rt.println("made")?;
    for (floor, answer) in story.floors.iter().zip(&life.bench) {
        tell_answer(rt, floor, answer.as_ref().map(|()| "taken"))?;
    }
    rt.println("  open -> in service")?;
    for (call, answer) in story.calls.iter().zip(&life.replies) {
        tell_answer(rt, call, answer.as_ref())?;
    }
    Ok(())
}

/// Prints a call with its answer.
fn tell_answer<T: Display, R: Display + Drop>(
    rt: &HostRuntime,
    call: &T,
    answer: Result<R, &Refusal>,
) -> io::Result<()> {
    match answer {
        Ok(reply) => println!(rt; "  {call} -> {reply}"),
        Err(refusal) => println!(rt; "  {call} -> {}", Reported(refusal)),
    }
}

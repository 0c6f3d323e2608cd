// A card whose stage is a type: at the bench it takes floors, in service saves, questions and notes.
use crate::page::Page;
use std::marker::PhantomData;

/// The stage of a card that takes floors.
#[derive(Clone, Copy)]
pub struct Benched;

/// The stage of a card that takes saves, questions and notes.
#[derive(Clone, Copy)]
pub struct Serving;

/// A table of pages, a code and an allowance, at a stage.
// No ghost field ties the pages to the code: each clause on a history holds of any card, and asks for none.
#[derive(Drop)]
pub struct Card<C, S> {
    code: C,
    allowance: usize,
    pages: Vec<Page>,
    stage: PhantomData<S>,
}

/// A card at the bench.
pub type Bench<C> = Card<C, Benched>;

/// A card in service.
pub type Service<C> = Card<C, Serving>;

mod compares;
mod floors;
mod makes;
mod notes;
mod reads;
mod saves;

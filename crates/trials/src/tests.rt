// The tests by subject, and what they share.
mod codes;
mod expects;
mod handset_reads;
mod pages;
mod refused_pages;
mod symbols;

//! The small listings, tried.

mod clearing;
mod loading;

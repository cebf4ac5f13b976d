//! What a thread that is kept needs of the system.
use std::alloc::AllocGlobal;
use std::random::RandomSource;
use std::sync::Wait;
use std::thread::Threads;

/// A system that gives threads, memory and what a task's context needs, and whose handle goes to each thread.
pub trait Host: Wait + Threads + RandomSource + AllocGlobal + Copy + Send + 'static {}

impl<R: Wait + Threads + RandomSource + AllocGlobal + Copy + Send + 'static> Host for R {}

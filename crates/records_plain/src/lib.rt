// The record merge without a heap (RULES, Requests, No. 12): the engine that is read first, and that the heap is checked by.
#![tactic(auto)]

pub mod plain;

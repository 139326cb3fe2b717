//! Tests of frozen tables, shards, column files, and what is made of them.

mod absorbing;
mod chosen_strings;
mod column_files;
mod frozen_tables;
mod sharding;
mod words;

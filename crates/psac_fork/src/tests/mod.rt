// Of each table, and of passes over all of them.
mod marks;
mod passes;
mod readers;
mod values;

mod changes;
mod naming;
mod refusals;

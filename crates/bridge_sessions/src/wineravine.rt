// The program `wineravine` over a host in memory. Its words and its other cases are tried on the built
// program, by `scripts/dev/check_wineravine`.
mod exact_log;
mod new_log;
mod texts;

// Trials at each limit and one past it, run on the calls that others make. There is no code here besides the tests.
#![tactic(auto)]

#[cfg(test)]
mod barrier_papers;
#[cfg(test)]
mod barrings;
#[cfg(test)]
mod matchings;
#[cfg(test)]
mod papers;
#[cfg(test)]
mod plants;
#[cfg(test)]
mod sheets;
#[cfg(test)]
mod weighings;

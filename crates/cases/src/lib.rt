// Examples of lists, tests, plans and whole files, each worked out by hand from the rules in docs/.

#![tactic(auto)]

#[cfg(test)]
mod list_files;
#[cfg(test)]
mod lists;
#[cfg(test)]
mod plan_files;
#[cfg(test)]
mod planned;
#[cfg(test)]
mod plans;
#[cfg(test)]
mod queues;
#[cfg(test)]
mod refusals;
#[cfg(test)]
mod rows;
#[cfg(test)]
mod says;
#[cfg(test)]
mod tried;

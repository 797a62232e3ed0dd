// Of all best plans one that changes fewest persons, by costs of 128 bits that combine both.
mod answer;
mod combine;
mod cycles;
mod dense;
mod first;
mod kept;
mod law;
mod priced;
mod solve;
mod tight;

pub use law::combined_means_fewest;
pub use solve::fewest_on;

// Vectors in fixed memory, for firmware without a heap.
//
//     let mut ticks: FixedVec<u32, 32> = FixedVec::new(0);
//     ticks.push(5)?;

#![tactic(auto)]

pub mod fixed_vec;

//! Tests of the parts, each through its public calls.
#![tactic(auto)]

#[cfg(test)]
mod edge_tests;
#[cfg(test)]
mod faults;
#[cfg(test)]
mod history_feed_tests;
#[cfg(test)]
mod history_reading_tests;
#[cfg(test)]
mod history_text_tests;
#[cfg(test)]
mod idle_ageing_tests;
#[cfg(test)]
mod jetsam_pick_tests;
#[cfg(test)]
mod kern_ids_tests;
#[cfg(test)]
mod link_list_tests;
#[cfg(test)]
mod page_queues_tests;
#[cfg(test)]
mod page_store_tests;
#[cfg(test)]
mod pageout_scan_tests;
#[cfg(test)]
mod priority_bands_tests;
#[cfg(test)]
mod purge_pick_tests;
#[cfg(test)]
mod ripen_advance_tests;
#[cfg(test)]
mod scenario_maker_tests;
#[cfg(test)]
mod scenario_text_tests;
#[cfg(test)]
mod task_ledger_tests;
#[cfg(test)]
mod texts;
#[cfg(test)]
mod token_list_tests;
#[cfg(test)]
mod vm_object_tests;
#[cfg(test)]
mod volatile_groups_tests;

// What holds of earliest, forecast, hazard, the log and deliveries. Laws alone: the definitions are those of early.
#![tactic(auto)]

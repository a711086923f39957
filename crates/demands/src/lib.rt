// No code: what is shown of the TM32G07x stands in `specs/`, over the definitions of `tm32`.

#![tactic(auto)]

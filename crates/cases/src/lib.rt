// No code: what is worked out case by case of the TM32G07x stands in `specs/`, over the definitions of `frame`, `memory` and `tm32`.

#![tactic(auto)]
